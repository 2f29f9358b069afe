// What a station says: a charge message's data bytes as a typed message, or 10 where the content is not allowed (01,
// "Numbers returned"). Data past a message's fields is not looked at. This crate may not know states, or what a message
// brings about.
#![tactic(auto)]

ghost use Rattle.std.specs.Prelude.{◌≡◌, get_or, cond, eqb, true, false};
ghost use Rattle.numbers.specs.declared.Refusal.TheVariants.{ContentNotAllowed as NotAllowed};
ghost use Rattle.charge_messages.specs.Content.{cim_of, cvm_of, cmp_of, crm_of, ccs_of, cst_of, cem_of, content_of, refusal_of};
ghost use Rattle.numbers.specs.Numbers.{answered};

use messages::received::Charge;
use numbers::Refusal;
use units::{RawAmps, TenthVolts};

// CMP: the station's maximum and minimum voltage, and its maximum and minimum current as the words that they are.
#[derive(Clone, Copy)]
pub struct Offer {
    pub highest: TenthVolts,
    pub lowest: TenthVolts,
    pub most: RawAmps,
    pub least: RawAmps,
}

// A charge message whose content is allowed; a flag is true where its byte is AA (of CCS, 01).
#[derive(Clone, Copy)]
pub enum ChargeMessage {
    Cim,
    Cvm(bool),
    Cmp(Offer),
    Crm(bool),
    Ccs(bool),
    Cst(bool),
    Cem,
}

fn cim(a: u8, b: u8, c: u8) -> Result<ChargeMessage, Refusal>
    ensures { result ≡ cim_of a b c }
{
    if (a == 1) & ((b == 1) & (c == 0)) {
        Ok(ChargeMessage::Cim)
    } else {
        Err(Refusal::ContentNotAllowed)
    }
}

// A byte that is true and 00 that is false; any other is not allowed.
fn flag(b: u8, yes: u8) -> Result<bool, Refusal>
    ensures { result ≡ cond (eqb b yes) (Ok true) (cond (eqb b 0x00) (Ok false) (Err NotAllowed)) }
{
    if b == yes {
        return Ok(true);
    }
    match b {
        0 => Ok(false),
        _ => Err(Refusal::ContentNotAllowed),
    }
}

// AA is true and 00 false.
fn mark(b: u8) -> Result<bool, Refusal>
    ensures { result ≡ cond (eqb b 0xaa) (Ok true) (cond (eqb b 0x00) (Ok false) (Err NotAllowed)) }
{
    flag(b, 0xaa)
}

fn cvm(a: u8) -> Result<ChargeMessage, Refusal>
    ensures { result ≡ cvm_of a }
{
    Ok(ChargeMessage::Cvm(mark(a)?))
}

fn cmp(bytes: &[u8]) -> Result<ChargeMessage, Refusal>
    ensures { result ≡ cmp_of bytes.now }
{
    let offer = Offer {
        highest: TenthVolts(buffers::word_at(bytes, 0)),
        lowest: TenthVolts(buffers::word_at(bytes, 2)),
        most: RawAmps(buffers::word_at(bytes, 4)),
        least: RawAmps(buffers::word_at(bytes, 6)),
    };
    Ok(ChargeMessage::Cmp(offer))
}

fn crm(a: u8) -> Result<ChargeMessage, Refusal>
    ensures { result ≡ crm_of a }
{
    match a {
        0xff => Ok(ChargeMessage::Crm(false)),
        _ => Ok(ChargeMessage::Crm(mark(a)?)),
    }
}

fn ccs(e: u8) -> Result<ChargeMessage, Refusal>
    ensures { result ≡ ccs_of e }
{
    Ok(ChargeMessage::Ccs(flag(e, 1)?))
}

fn cst(c: u8) -> Result<ChargeMessage, Refusal>
    ensures { result ≡ cst_of c }
{
    Ok(ChargeMessage::Cst(mark(c)?))
}

fn cem(c: u8) -> Result<ChargeMessage, Refusal>
    ensures { result ≡ cem_of c }
{
    mark(c)?;
    Ok(ChargeMessage::Cem)
}

// The message that the data bytes are; a byte past the end counts as 0.
#[tactic(auto, unfolding(crate::specs::Content::content_of))]
pub fn read_content(m: Charge, bytes: &[u8]) -> Result<ChargeMessage, Refusal>
    ensures number { answered result ≡ refusal_of m bytes.now }
    ensures answer { result ≡ content_of m bytes.now }
{
    match m {
        Charge::Cim => {
            let a = buffers::byte_at(bytes, 0);
            let b = buffers::byte_at(bytes, 1);
            cim(a, b, buffers::byte_at(bytes, 2))
        }
        Charge::Cvm => cvm(buffers::byte_at(bytes, 0)),
        Charge::Cmp => cmp(bytes),
        Charge::Crm => crm(buffers::byte_at(bytes, 0)),
        Charge::Ccs => ccs(buffers::byte_at(bytes, 4)),
        Charge::Cst => cst(buffers::byte_at(bytes, 2)),
        Charge::Cem => cem(buffers::byte_at(bytes, 2)),
    }
}
