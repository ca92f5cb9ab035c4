// The walk of an action's rows (Figure 7): what holds where it ends, and what its jumps carry to each state.
ghost use Rattle.std.specs.Prelude.{true};
ghost use Rattle.image.specs.Located.{tables};
ghost use Rattle.model.specs.Rows.{branch, arm};
ghost use Rattle.model.specs.Decode.{action_at};
ghost use Rattle.masks.specs.Masks.{branches_at, arms_at};
ghost use Rattle.sets.specs.Flow.{flow, flow_branches, flow_arms, Walked, Plain, Ready, ReadyAs, Single, Loop, ReadyList, Jump, PlainRow};

use image::Automaton;
use masks::{Masks, bit, inside, masks_in, without};
use model::Image;

// What every walk reads: an image, the masks of its rows, the mask of all variables. It's handed on by a reference, which
// takes little of the stack.
#[derive(Clone, Copy)]
pub struct Lent<'a> {
    pub x: Automaton<'a>,
    pub masks: &'a [Masks],
    pub top: u64,
}

// What a walk finds on its way: the states whose sets changed; whether all that it read was defined.
#[derive(Clone, Copy)]
pub struct Findings {
    pub moved: u64,
    pub fine: bool,
}

// 48 to 52: what holds after the action; fine turns false where it reads what isn't defined.
fn plain(lent: &Lent, row: u16, entering: u64, fine: &mut bool) -> u64
    requires { PlainRow lent.now.x.image.now lent.now.x.trailer lent.now.masks.now row }
    ensures { Plain (tables lent.now.x) row entering fine.old fine.new result }
{
    let w = lent.x.fields(row);
    let c = w.code;
    match c {
        49 => {
            let m = masks_in(lent.masks, w.a);
            let after = entering | m.defs;
            *fine = *fine & inside(m.uses, entering);
            after
        }
        50 => {
            let after = entering | masks_in(lent.masks, w.a).defs;
            *fine = *fine & inside(masks_in(lent.masks, w.b).uses, after);
            after
        }
        51 => without(entering, masks_in(lent.masks, w.a).defs),
        52 => {
            let m = masks_in(lent.masks, w.b);
            let after = entering | m.defs;
            *fine = *fine & inside(m.uses, after);
            after
        }
        _ => entering,
    }
}

// A jump carries its set to a state, which is added to moved if its set changes; code after it is entered with all variables.
fn jump(lent: &Lent, row: u16, entering: u64, out: &mut [u64], moved: &mut u64) -> u64
    requires { Jump lent.now.x.image.now lent.now.x.trailer row lent.now.top out.old }
    ensures { Walked (flow lent.now.top entering (action_at (tables lent.now.x) row)) out.old out.new moved.old moved.new true true result }
{
    let w = lent.x.fields(row);
    let q = w.a as usize;
    let old = out[q];
    let new = old & entering;
    if new == old {
        return lent.top;
    }
    out[q] = new;
    *moved = *moved | bit(w.a);
    lent.top
}

// What the action of a row leaves where it ends. What it carries to each state is met in place, the states whose sets change
// are added to moved, an error turns fine false. A sequence is followed in a loop, so that only its first part takes stack.
#[cycle(walking)]
pub fn walk(lent: &Lent, row: u16, entering: u64, out: &mut [u64], found: &mut Findings) -> u64
    requires { Ready lent.now.x.image.now lent.now.x.trailer lent.now.masks.now row lent.now.top out.old }
    ensures { Walked (flow lent.now.top entering (action_at (tables lent.now.x) row)) out.old out.new found.old.moved found.new.moved found.old.fine found.new.fine result }
{
    let mut here = row;
    let mut set = entering;
    while lent.x.code(here) == 54 {
        let w = lent.x.fields(here);
        set = walk_first(lent, w.a, set, out, found);
        here = w.b;
    }
    walk_single(lent, here, set, out, found)
}

// The same of a sequence's first part: one without parts takes no stack.
#[cycle(walking)]
fn walk_first(lent: &Lent, row: u16, entering: u64, out: &mut [u64], found: &mut Findings) -> u64
    requires { Ready lent.now.x.image.now lent.now.x.trailer lent.now.masks.now row lent.now.top out.old }
    ensures { Walked (flow lent.now.top entering (action_at (tables lent.now.x) row)) out.old out.new found.old.moved found.new.moved found.old.fine found.new.fine result }
{
    if lent.x.code(row) < 53 {
        return plain(lent, row, entering, &mut found.fine);
    }
    walk(lent, row, entering, out, found)
}

// The same of an action that is no sequence.
#[cycle(walking)]
fn walk_single(lent: &Lent, row: u16, entering: u64, out: &mut [u64], found: &mut Findings) -> u64
    requires { ReadyAs Single lent.now.x.image.now lent.now.x.trailer lent.now.masks.now row lent.now.top out.old }
    ensures { Walked (flow lent.now.top entering (action_at (tables lent.now.x) row)) out.old out.new found.old.moved found.new.moved found.old.fine found.new.fine result }
{
    let w = lent.x.fields(row);
    let c = w.code;
    match c {
        53 => jump(lent, row, entering, out, &mut found.moved),
        55 => walk_branches(lent, w.a, entering, out, found),
        56 => {
            let used = masks_in(lent.masks, w.a).uses | masks_in(lent.masks, w.b).uses;
            found.fine = found.fine & inside(used, entering);
            walk_arms(lent, w.b, entering, out, found)
        }
        59 | 60 => walk_loop(lent, row, entering, out, found),
        _ => plain(lent, row, entering, &mut found.fine),
    }
}

// The same of a list of branches.
#[cycle(walking)]
fn walk_branches(lent: &Lent, row: u16, entering: u64, out: &mut [u64], found: &mut Findings) -> u64
    requires { ReadyList branch lent.now.x.image.now lent.now.x.trailer lent.now.masks.now row lent.now.top out.old }
    ensures { Walked (flow_branches lent.now.top entering (branches_at (tables lent.now.x) row)) out.old out.new found.old.moved found.new.moved found.old.fine found.new.fine result }
{
    let mut here = row;
    let mut ends = lent.top;
    while here != Image::NONE {
        let w = lent.x.fields(here);
        ends = ends & walk(lent, w.a, entering, out, found);
        here = w.b;
    }
    ends
}

// The same of a list of arms, each entered with its pattern's variables.
#[cycle(walking)]
fn walk_arms(lent: &Lent, row: u16, entering: u64, out: &mut [u64], found: &mut Findings) -> u64
    requires { ReadyList arm lent.now.x.image.now lent.now.x.trailer lent.now.masks.now row lent.now.top out.old }
    ensures { Walked (flow_arms lent.now.top entering (arms_at (tables lent.now.x) row)) out.old out.new found.old.moved found.new.moved found.old.fine found.new.fine result }
{
    let mut here = row;
    let mut ends = lent.top;
    while here != Image::NONE {
        let w = lent.x.fields(here);
        let entered = entering | masks_in(lent.masks, w.a).defs;
        ends = ends & walk(lent, w.b, entered, out, found);
        here = w.c;
    }
    ends
}

// The same of a loop, which keeps its entering set. A while's condition defines nothing, a for's range reads nothing.
#[cycle(walking)]
fn walk_loop(lent: &Lent, row: u16, entering: u64, out: &mut [u64], found: &mut Findings) -> u64
    requires { ReadyAs Loop lent.now.x.image.now lent.now.x.trailer lent.now.masks.now row lent.now.top out.old }
    ensures { Walked (flow lent.now.top entering (action_at (tables lent.now.x) row)) out.old out.new found.old.moved found.new.moved found.old.fine found.new.fine result }
{
    let w = lent.x.fields(row);
    let head = masks_in(lent.masks, w.a);
    let kept = entering | head.defs;
    let ends = walk(lent, w.b, kept, out, found);
    found.fine = found.fine & inside(head.uses, kept) & inside(kept, ends | head.defs);
    kept
}
