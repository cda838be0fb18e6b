//! The lines of a text, one after another.

ghost use Rattle.std.specs.Prelude.{◌≡◌, ◌+◌, ◌^◌, ◌<◌, ◌==◌, [], ◌∷◌, length, position, MatchOption, IfSome};
ghost use Rattle.qe_base.specs.Lines.{placed_lines};

use std::marker::Model;

/// The lines of a text that are left. Contracts see each with the number of the lines before it.
#[derive(Drop)]
pub struct Lines<'a> {
    // None behind a last line that no line feed ended.
    rest: Option<&'a [u8]>,
    passed: u64,
}

impl<'a> Model for Lines<'a> {
    ghost use Rattle.std.specs.Prelude.{ℕ, List, ◌+◌, ◌^◌, ◌<◌, length, option_map, IfSome};
    ghost use Rattle.std.specs.List.{enumerate_from};
    ghost use Rattle.qe_base.specs.Lines.{lines_left};

    ghost Value = { List (ℕ × List ℕ) };

    ghost view = { λ l. enumerate_from l.passed (lines_left (option_map (λ rest. rest.now) l.rest)) };

    ghost invariant = { λ l. IfSome l.rest (λ rest. l.passed + length rest.now < 2 ^ 64) };
}

impl<'a> Lines<'a> {
    /// All lines of a text. They end with line feeds, which the last may lack.
    pub fn of(text: &'a [u8]) -> Lines<'a>
        ensures { result ≡ placed_lines text.now }
    {
        let _fits = text.len();
        Lines {
            rest: Some(text),
            passed: 0,
        }
    }

    /// The next line without its line feed, and how many lines came before it.
    pub fn next_line(&mut self) -> Option<(u64, &'a [u8])>
        ensures next { MatchOption result (self.old ≡ []) (λ line. self.old ≡ (line.0, line.1.now) ∷ self.new) }
        ensures over { MatchOption result (self.new ≡ []) (λ _. Unit {0}) }
        ensures within { IfSome result (λ line. line.0 + length line.1.now < 2 ^ 64) }
    {
        let rest = self.rest?;
        let passed = self.passed;
        match line_end(rest) {
            Some(end) => {
                self.rest = Some(&rest[end + 1..]);
                self.passed = passed + 1;
                Some((passed, &rest[..end]))
            }
            None => {
                self.rest = None;
                Some((passed, rest))
            }
        }
    }
}

fn line_end(text: &[u8]) -> Option<usize>
    ensures { result ≡ position (λ byte. byte == 10) text.now }
{
    text.iter().position(|byte| *byte == b'\n')
}
