// The lines of an input: each ends in a line feed, and the last may lack it.
ghost use Rattle.std.specs.Prelude.{◌≡◌, [], ◌∷◌, MatchOption};
ghost use Rattle.script.specs.Pieces.{lines};

use crate::piece::split_first;

pub const LINE_FEED: u8 = b'\n';

// Takes the first line off, without its line feed, and gives what follows it; nothing if there is no line.
#[tactic(auto, using(crate::proofs::Dividing::first_line))]
pub fn split_line(input: &[u8]) -> Option<(&[u8], &[u8])>
    ensures { MatchOption result (lines input.now ≡ []) (λ p. lines input.now ≡ p.0.now ∷ lines p.1.now) }
{
    if input.is_empty() {
        return None;
    }
    let (line, after) = split_first(input, LINE_FEED);
    Some((line, after.unwrap_or(&[])))
}
