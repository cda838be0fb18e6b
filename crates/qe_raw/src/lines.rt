//! The lines of a script that aren't blank.

ghost use Rattle.std.specs.Prelude.{◌≡◌, ◌-◌, [], ◌∷◌, MatchOption};
ghost use Rattle.qe_raw.specs.Lines.{is_blank, numbered, past_blank};

use qe_base::Lines;

/// The next line that isn't of spaces, tabs and carriage returns alone, and its number from 1.
#[tactic(auto, unfolding(crate::specs::Lines::numbered))]
pub fn next_line<'a>(lines: &mut Lines<'a>) -> Option<(u64, &'a [u8])>
    ensures next { MatchOption result (numbered lines.old ≡ []) (λ line. numbered lines.old ≡ (line.0, line.1.now) ∷ numbered lines.new) }
    // Nothing more is taken of the lines, and nothing is left behind the last.
    ensures left { MatchOption result (lines.new ≡ []) (λ line. past_blank lines.old ≡ (line.0 - 1, line.1.now) ∷ lines.new) }
{
    while let Some((passed, line)) = lines.next_line() {
        if !is_blank(line) {
            return Some((passed + 1, line));
        }
    }
    None
}

fn is_blank(line: &[u8]) -> bool
    ensures { result ≡ is_blank line.now }
{
    line.iter()
        .all(|byte| *byte == b' ' || *byte == b'\t' || *byte == b'\r')
}
