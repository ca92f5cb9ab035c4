// The run of an action, on a working copy of the store: one attempt. Running an action and running the branches or arms it
// holds lead into each other. How a run ended is a number (crate told).
#![tactic(auto)]

ghost use Rattle.std.specs.Prelude.{◌≡◌, cond, suc, ◌-◌, ◌/◌, ◌^◌, ◌<◌, leb, pos, length};
ghost use Rattle.model.specs.declared.{Refusal.TheVariants.Blocked, Refusal.TheVariants.BlockedSpoken, Outcome.TheVariants.Stops};
ghost use Rattle.model.specs.Answers.{row};
ghost use Rattle.model.specs.Image.{tables_of, fields_of};
ghost use Rattle.model.specs.Rows.{expression, action, branch};
ghost use Rattle.model.specs.Decode.{action_at, expression_at, list_at, branches_of, arms_of, for_of};
ghost use Rattle.model.specs.Trees.{select, case};
ghost use Rattle.model.specs.Run.{eval, test, and_then, looping, exec, exec_act, exec_branch, exec_arms};
ghost use Rattle.expressions.specs.Ready.{Runs};
ghost use Rattle.actions.specs.State.{state_of};
ghost use Rattle.told.specs.Told.{outcome_of, ran_of, Tells, Told, Leaves};
ghost use Rattle.machine.specs.Running.{Running, RunningList, RunningCase, RunningArms, RunningLoop, RunningFor, SlotOf, Turned, Onward, AtMost};

use actions::{Run, blocked_at};
use expressions::{eval, row, test, value};
use model::{Image, Refusal, Row, Tested};
use patterns::{Found, find_arm};
use simple::run_simple;
use told::{ENDS, Values, charge, hear, stopped};
use values::{plus, signed, size};
use words::word;

// Blocked, before or after communicating.
fn blocked(r: u16, run: &Run) -> u32
    ensures { Tells result (Stops (cond run.now.spoken (BlockedSpoken (row r)) (Blocked (row r)))) }
{
    stopped(blocked_at(r, run.spoken))
}

// One unit for a further test, where the body ended.
fn again(r: u16, p: u32, run: &mut Run) -> u32
    requires { Told p }
    ensures { Told result × Turned r (ran_of p run.old) (ran_of result run.new) }
{
    if p != ENDS {
        return p;
    }
    if run.left == 0 {
        return stopped(Refusal::BudgetSpent(Row(r)));
    }
    charge(run);
    ENDS
}

// V := V + 1 of a for, where its body ended.
fn onward(r: u16, v: u16, p: u32, store: &mut [i32]) -> u32
    requires { Told p × SlotOf (outcome_of p) v store.old }
    ensures { Told result × Onward r v (outcome_of p) store.old (outcome_of result) store.new }
{
    if p != ENDS {
        return p;
    }
    match value(store, v) {
        Some(z) => {
            store[v as usize] = plus(Image::HALF, z, 1);
            ENDS
        }
        None => stopped(Refusal::Undefined(Row(r))),
    }
}

// eval and test of a store behind a &mut, which can be lent to be changed only (docs/DECISIONS.md, 71).
fn eval_on(image: &[u8], rows: u16, e: u16, store: &mut [i32]) -> Option<i32>
    requires { Runs expression image.now rows e store.old }
    ensures { (result ≡ eval (tables_of image.now) (expression_at (tables_of image.now) e) store.old) × (store.new ≡ store.old) }
{
    eval(image, rows, e, store)
}

fn test_on(image: &[u8], rows: u16, e: u16, store: &mut [i32]) -> Tested
    requires { Runs expression image.now rows e store.old }
    ensures { (result ≡ test (tables_of image.now) (expression_at (tables_of image.now) e) store.old) × (store.new ≡ store.old) }
{
    test(image, rows, e, store)
}

// V <= high of a for.
fn at_most(store: &mut [i32], v: u16, high: i32) -> Tested
    requires { v < length store.old }
    ensures { AtMost v high store.old result × (store.new ≡ store.old) }
{
    match value(store, v) {
        Some(z) => {
            if z <= high {
                Tested::Holds
            } else {
                Tested::Fails
            }
        }
        None => Tested::Unsure,
    }
}

// Whether the script has no word k; there is memory for no more than 2^64 bytes of it.
fn no_word(script: &[u8], k: usize) -> bool
    ensures { (result ≡ leb (length script.now / 4) k) × (length script.now < 2 ^ 64) }
{
    script.len() / 4 <= k
}

// A unit on entering the row, before its effect; then what the row says.
#[cycle(running)]
pub fn run_action(
    image: &&[u8],
    rows: u16,
    r: u16,
    store: &mut &mut [i32],
    script: &&[u8],
    values: &mut Values,
    run: &mut Run,
) -> u32
    requires { Running action image.now.now rows r store.old.now values.old }
    ensures { Leaves result run.new store.old.now store.new.now values.old values.new (exec (tables_of image.now.now) (action_at (tables_of image.now.now) r) script.now.now (state_of run.old store.old.now values.old)) }
{
    if run.left == 0 {
        return stopped(Refusal::BudgetSpent(Row(r)));
    }
    charge(run);
    let w = row(*image, rows, r);
    let code = w.code;
    match code {
        54 => run_both(image, rows, w.a, w.b, store, script, values, run),
        55 => run_select(image, rows, r, w.a, store, script, values, run),
        56 => run_case(image, rows, r, w.a, w.b, store, script, values, run),
        59 => run_while(image, rows, r, w.a, w.b, store, script, values, run),
        60 => run_for(image, rows, r, w.a, w.b, store, script, values, run),
        _ => run_simple(*image, rows, r, *store, script, values, run),
    }
}

// a, and b where a ended.
#[cycle(running)]
fn run_both(
    image: &&[u8],
    rows: u16,
    a: u16,
    b: u16,
    store: &mut &mut [i32],
    script: &&[u8],
    values: &mut Values,
    run: &mut Run,
) -> u32
    requires { Running action image.now.now rows a store.old.now values.old × Running action image.now.now rows b store.old.now values.old }
    ensures { Leaves result run.new store.old.now store.new.now values.old values.new (and_then (exec (tables_of image.now.now) (action_at (tables_of image.now.now) a) script.now.now (state_of run.old store.old.now values.old)) (exec (tables_of image.now.now) (action_at (tables_of image.now.now) b) script.now.now)) }
{
    let n = run_action(image, rows, a, store, script, values, run);
    if n != ENDS {
        return n;
    }
    run_action(image, rows, b, store, script, values, run)
}

// The branch that the script's next word names; blocked where there is none.
#[cycle(running)]
fn run_select(
    image: &&[u8],
    rows: u16,
    r: u16,
    a: u16,
    store: &mut &mut [i32],
    script: &&[u8],
    values: &mut Values,
    run: &mut Run,
) -> u32
    requires { RunningList branch image.now.now rows a store.old.now values.old }
    ensures { Leaves result run.new store.old.now store.new.now values.old values.new (exec_act (tables_of image.now.now) (select (branches_of (tables_of image.now.now) (action_at (tables_of image.now.now)) (list_at (tables_of image.now.now) a))) script.now.now r (state_of run.old store.old.now values.old)) }
{
    if a == Image::NONE {
        return blocked(r, run);
    }
    let k = run.words;
    if no_word(*script, k) {
        return stopped(Refusal::ScriptEnded(Row(r)));
    }
    let z = word(*script, k);
    hear(run);
    if z < 0 {
        return stopped(Refusal::WordOutOfRange(Row(r)));
    }
    run_branches(image, rows, r, a, size(z), store, script, values, run)
}

// Branch number k, 0 is the first. The list goes from row to row by their next fields: k is counted down, and no range is
// gone over.
#[cycle(running)]
fn run_branches(
    image: &&[u8],
    rows: u16,
    r: u16,
    first: u16,
    k: u32,
    store: &mut &mut [i32],
    script: &&[u8],
    values: &mut Values,
    run: &mut Run,
) -> u32
    requires { RunningList branch image.now.now rows first store.old.now values.old }
    ensures { Leaves result run.new store.old.now store.new.now values.old values.new (exec_branch (tables_of image.now.now) (branches_of (tables_of image.now.now) (action_at (tables_of image.now.now)) (list_at (tables_of image.now.now) first)) (pos k) script.now.now r (state_of run.old store.old.now values.old)) }
{
    let mut here = first;
    let mut ahead = k;
    loop {
        if here == Image::NONE {
            return stopped(Refusal::WordOutOfRange(Row(r)));
        }
        let w = row(*image, rows, here);
        if ahead == 0 {
            return run_action(image, rows, w.a, store, script, values, run);
        }
        here = w.b;
        ahead -= 1;
    }
}

// The first arm that matches the subject.
#[cycle(running)]
fn run_case(
    image: &&[u8],
    rows: u16,
    r: u16,
    a: u16,
    b: u16,
    store: &mut &mut [i32],
    script: &&[u8],
    values: &mut Values,
    run: &mut Run,
) -> u32
    requires { RunningCase image.now.now rows a b store.old.now values.old }
    ensures { Leaves result run.new store.old.now store.new.now values.old values.new (exec_act (tables_of image.now.now) (case (expression_at (tables_of image.now.now) a) (arms_of (tables_of image.now.now) (action_at (tables_of image.now.now)) (list_at (tables_of image.now.now) b))) script.now.now r (state_of run.old store.old.now values.old)) }
{
    match eval_on(*image, rows, a, *store) {
        Some(z) => run_arms(image, rows, r, b, z, store, script, values, run),
        None => stopped(Refusal::Undefined(Row(r))),
    }
}

// The first arm that matches z; blocked where none does.
#[cycle(running)]
fn run_arms(
    image: &&[u8],
    rows: u16,
    r: u16,
    first: u16,
    z: i32,
    store: &mut &mut [i32],
    script: &&[u8],
    values: &mut Values,
    run: &mut Run,
) -> u32
    requires { RunningArms image.now.now rows first z store.old.now values.old }
    ensures { Leaves result run.new store.old.now store.new.now values.old values.new (exec_arms (tables_of image.now.now) (arms_of (tables_of image.now.now) (action_at (tables_of image.now.now)) (list_at (tables_of image.now.now) first)) z script.now.now r (state_of run.old store.old.now values.old)) }
{
    match find_arm(*image, rows, first, z, *store) {
        Found::Arm(a) => run_action(image, rows, a, store, script, values, run),
        Found::NoArm => blocked(r, run),
        Found::Unsure => stopped(Refusal::Undefined(Row(r))),
    }
}

// A loop's body: null, which changes nothing, without a call.
#[cycle(running)]
fn run_body(
    image: &&[u8],
    rows: u16,
    a: u16,
    store: &mut &mut [i32],
    script: &&[u8],
    values: &mut Values,
    run: &mut Run,
) -> u32
    requires { Running action image.now.now rows a store.old.now values.old }
    ensures { Leaves result run.new store.old.now store.new.now values.old values.new (exec (tables_of image.now.now) (action_at (tables_of image.now.now) a) script.now.now (state_of run.old store.old.now values.old)) }
{
    let w = row(*image, rows, a);
    if w.code != 48 {
        return run_action(image, rows, a, store, script, values, run);
    }
    if run.left == 0 {
        return stopped(Refusal::BudgetSpent(Row(a)));
    }
    charge(run);
    ENDS
}

// While e do a; one unit for each further test.
#[cycle(running)]
fn run_while(
    image: &&[u8],
    rows: u16,
    r: u16,
    e: u16,
    a: u16,
    store: &mut &mut [i32],
    script: &&[u8],
    values: &mut Values,
    run: &mut Run,
) -> u32
    requires { RunningLoop image.now.now rows r e a store.old.now values.old }
    ensures { Leaves result run.new store.old.now store.new.now values.old values.new (looping (suc run.old.left) (tables_of image.now.now) (expression_at (tables_of image.now.now) e) (exec (tables_of image.now.now) (action_at (tables_of image.now.now) a) script.now.now) r (state_of run.old store.old.now values.old)) }
{
    loop {
        match test_on(*image, rows, e, *store) {
            Tested::Fails => return ENDS,
            Tested::Unsure => return stopped(Refusal::Undefined(Row(r))),
            Tested::Holds => {}
        }
        let p = run_body(image, rows, a, store, script, values, run);
        let n = again(r, p, run);
        if n != ENDS {
            return n;
        }
    }
}

// For range g do a: V := low; while V <= high do a; V := V + 1. The assignments cost nothing.
#[cycle(running)]
fn run_for(
    image: &&[u8],
    rows: u16,
    r: u16,
    g: u16,
    a: u16,
    store: &mut &mut [i32],
    script: &&[u8],
    values: &mut Values,
    run: &mut Run,
) -> u32
    requires { RunningFor image.now.now rows r g a store.old.now values.old }
    ensures { Leaves result run.new store.old.now store.new.now values.old values.new (exec_act (tables_of image.now.now) (for_of (fields_of (tables_of image.now.now) g) (action_at (tables_of image.now.now) a)) script.now.now r (state_of run.old store.old.now values.old)) }
{
    let w = row(*image, rows, g);
    let v = w.a;
    let high = signed(Image::HALF, w.c);
    store[v as usize] = signed(Image::HALF, w.b);
    loop {
        match at_most(*store, v, high) {
            Tested::Fails => return ENDS,
            Tested::Unsure => return stopped(Refusal::Undefined(Row(r))),
            Tested::Holds => {}
        }
        let p = run_body(image, rows, a, store, script, values, run);
        let o = onward(r, v, p, *store);
        let n = again(r, o, run);
        if n != ENDS {
            return n;
        }
    }
}
