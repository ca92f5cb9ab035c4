// The rows of an image: each as the table of codes says (5), the roots of their kinds (6), each row named once (7).
#![tactic(auto)]

ghost use Rattle.std.specs.Prelude.{◌≡◌, ◌<◌, length};
ghost use Rattle.model.specs.Answers.{lowest_failing};
ghost use Rattle.model.specs.Rows.{Kind, number_of_kind, is_root};
ghost use Rattle.model.specs.Calls.{rows_verdict};
ghost use Rattle.image.specs.Located.{tables, Located};
ghost use Rattle.rows.specs.Judged.{Reading, rooted};

use fits::{malformed, names};
use image::Automaton;
use lines::{ACTION, CODES, EXPRESSION, LINES};
use model::{Refusal, Row, State};
use once::not_once;

mod fits;
mod lines;
mod once;

// A row of kind k.
fn is_root(x: &Automaton, lines: &[u32; CODES], k: u32, r: u16) -> bool
    requires { Reading x.now.image.now lines.now x.now.trailer }
    ensures { (j : Kind) → k ≡ number_of_kind j → result ≡ is_root (tables x.now) j r }
{
    let n = x.row_count();
    names(x, lines, n, k, r)
}

// State q's row is an action.
fn rooted(x: &Automaton, lines: &[u32; CODES], q: u16) -> bool
    requires { Reading x.now.image.now lines.now x.now.trailer × (q < length (tables x.now).states) }
    ensures { result ≡ rooted (tables x.now) q }
{
    is_root(x, lines, ACTION, x.state_row(q))
}

// The lowest of the n states whose row is no action.
fn not_rooted(x: &Automaton, lines: &[u32; CODES], n: u16) -> Option<u16>
    requires { Reading x.now.image.now lines.now x.now.trailer × (n ≡ length (tables x.now).states) }
    ensures { result ≡ lowest_failing (rooted (tables x.now)) n }
{
    (0..n).find(|q| !rooted(x, lines, *q))
}

// 5, then 6, then 7, each at the lowest place, by the table of codes.
fn verdict_by(x: &Automaton, lines: &[u32; CODES]) -> Result<(), Refusal>
    requires { Reading x.now.image.now lines.now x.now.trailer }
    ensures { result ≡ rows_verdict (tables x.now) }
{
    let rows = x.row_count();
    if let Some(r) = malformed(x, lines, rows) {
        return Err(Refusal::Malformed(Row(r)));
    }
    let states = x.state_count();
    if let Some(q) = not_rooted(x, lines, states) {
        return Err(Refusal::NoAction(State(q)));
    }
    if !is_root(x, lines, EXPRESSION, x.trailer.condition) {
        return Err(Refusal::NoCondition(states));
    }
    if let Some(m) = not_once(x, lines, rows) {
        return Err(Refusal::NotNamedOnce(Row(m)));
    }
    Ok(())
}

// What 5 to 7 give of an image that is past 1 to 3.
pub fn rows_verdict(x: &Automaton) -> Result<(), Refusal>
    requires { Located x.now.image.now x.now.trailer }
    ensures { result ≡ rows_verdict (tables x.now) }
{
    let lines = LINES;
    verdict_by(x, &lines)
}
