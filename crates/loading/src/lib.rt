// An image as a program is given it.
#![tactic(auto)]

ghost use Rattle.std.specs.Prelude.{◌≡◌, take, IfOk, IfSome};

use model::Image;
use std::alloc::Global;
use std::io;
use std::io::Read;

// One byte more than an image may have is read, so that a longer one is refused.
const ROOM: u64 = Image::LENGTH as u64 + 1;

// What a file or standard input has, up to that byte.
pub fn load_image<R: Read + Drop>(from: R, alloc: Global) -> io::Result<Vec<u8>>
    ensures { IfOk result (λ image. IfSome (R.remaining from) (λ bytes. image.items ≡ take 16817 bytes)) }
{
    let mut image = Vec::new(alloc);
    from.take(ROOM).read_to_end(&mut image)?;
    Ok(image)
}
