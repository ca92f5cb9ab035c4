// Draws the image on standard input as a graph for Graphviz, on standard output.
#![tactic(auto)]

use ended::ended;
use graph::draw;
use loading::load_image;
use std::io;

// As in lister and explain but for the call: over a closure no plainer, since its bound would have to be asked of it.
fn main(rt: HostRuntime) -> io::Result<()> {
    let mut text = [0u8; 262144];
    let image = load_image(rt.reader(), rt.alloc())?;
    let end = draw(&image, &mut text);
    ended(rt.write_all(&text[..end]))
}
