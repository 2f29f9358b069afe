// What a CMP offers: what its current words mean (02, request 1), the yes rule, and the station's maximum (01, "Session
// by message").
ghost use Rattle.std.specs.Prelude.{◌≡◌};
ghost use Rattle.session_by_message.specs.Offer.{offered_tenths, accepted_of, station_maximum};

use charge_messages::Offer;
use settings::Settings;
use units::{RawAmps, TenthAmps};

// What a current word of a CMP means, in tenths of an ampere: its distance from 4000, either side.
#[tactic(auto, unfolding(crate::specs::Offer::offered_tenths))]
fn offered(raw: RawAmps) -> TenthAmps
    ensures { result.0 ≡ offered_tenths raw }
{
    TenthAmps(raw.0.abs_diff(4000))
}

// min voltage <= maximum pack voltage <= max voltage, 0 <= min current <= max current, min current <= maximum current.
// A distance is never below 0, so that is not tested.
#[tactic(auto, unfolding(crate::specs::Offer::accepted_of))]
pub fn accepted(x: Settings, o: Offer) -> bool
    ensures { result ≡ accepted_of x o }
{
    let pack = x.limits.pack;
    let least = offered(o.least);
    let between = (o.lowest <= pack) & (pack <= o.highest);
    let in_order = least <= offered(o.most);
    let within = least <= x.limits.current;
    between & (in_order & within)
}

// The station's maximum current.
#[tactic(auto, unfolding(crate::specs::Offer::station_maximum))]
pub fn station_maximum(o: Offer) -> TenthAmps
    ensures { result ≡ station_maximum o }
{
    offered(o.most)
}
