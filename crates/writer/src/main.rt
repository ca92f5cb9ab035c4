// The table writer run from its start to where it's blocked, through the calls start and step: an image on standard
// input, its run on standard output. A line for each move has the state, the next state, units, words, gate and values;
// then stands the refusal that ends the run, number and place, and at last the store.
#![tactic(auto)]

mod line;
mod run;

use ended::ended;
use loading::load_image;
use std::io;

fn main(rt: HostRuntime) -> io::Result<()> {
    let image = load_image(rt.reader(), rt.alloc())?;
    ended(run::table_writer(&rt, &image))
}
