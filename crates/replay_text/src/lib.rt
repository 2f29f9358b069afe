// Lines of text where they stand in the input: where each ends, its words, and the decimal numbers and the hex that
// these are. A line is read with the newline that ends it, so that a walk along it stops there by itself. This crate
// may not know what a line asks for, nor any controller.
#![tactic(auto)]

ghost use Rattle.std.specs.Prelude.{◌≡◌, ◌<◌, ℕ, Bool, drop};
ghost use Rattle.replay_text.specs.Chars.{byte_at, next_place, past_all, Tests};

pub mod digits;
pub mod hex;
pub mod lines;
pub mod numbers;
pub mod words;

// As many characters as are held at once.
pub const SIZE: usize = 65536;

// As much of the input as is held at once: whole lines, each with its newline, and the beginning of one more.
pub type Text = [u8; SIZE];

// Stays a text and a place in it, two parameters of each reader: what they answer is places of one text (a word's two
// ends, the place past digits), numbers in the definitions too, and a struct of both would lend the text with each.

// The character at a place; past the text, a newline.
pub fn byte_at(text: &[u8], at: usize) -> u8
    ensures { result ≡ byte_at text.now at }
{
    text.get(at).copied().unwrap_or(b'\n')
}

// The next place, up to the most that a text has.
pub fn after(at: usize) -> usize
    ensures { result ≡ next_place at }
{
    at.min(SIZE - 1) + 1
}

// The characters from a place on; none past the text.
fn rest(text: &[u8], from: usize) -> &[u8]
    ensures { result.now ≡ drop from text.now }
{
    text.get(from..).unwrap_or(&[])
}

// The first place from one on where a character does not pass a test; the text's end where all do. Stays a `for` over
// places: `position` over the rest of the text answers nothing where all pass, and would cut the text at each walk.
fn past_all<F: Fn(u8) -> bool>(text: &[u8], from: usize, passes: F) -> usize
    ghost test: { ℕ → Bool }
    requires { Tests F.pre F.post passes test }
    ensures { result ≡ past_all test text.now from }
{
    for at in from..text.len() {
        if !passes(text[at]) {
            return at;
        }
    }
    from.max(text.len())
}
