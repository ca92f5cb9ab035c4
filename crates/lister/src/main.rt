// The lister: an image on standard input, its listing on standard output.
#![tactic(auto)]

use ended::ended;
use listing::listing;
use loading::load_image;
use std::io;

// As in explain and draw but for the call: over a closure no plainer, since its bound would have to be asked of it.
fn main(rt: HostRuntime) -> io::Result<()> {
    let mut text = [0u8; 2048];
    let image = load_image(rt.reader(), rt.alloc())?;
    let end = listing(&image, &mut text);
    ended(rt.write_all(&text[..end]))
}
