ghost use Rattle.std.specs.Prelude.{◌≡◌, take, IfOk, IfSome};

use std::alloc::Global;
use std::io;
use std::io::Read;

// A job has at most 60,000 bytes; one more tells that it is too long.
const ENOUGH: u64 = 60_001;

// The job that a stream has, or as much of it as tells that it is too long.
pub fn read_input<R: Read + Drop>(heap: Global, stream: R) -> io::Result<Vec<u8>>
    ensures { IfOk result (λ job. IfSome (R.remaining stream) (λ bytes. job.items ≡ take 60001 bytes)) }
{
    let mut job = Vec::new(heap);
    stream.take(ENOUGH).read_to_end(&mut job)?;
    Ok(job)
}
