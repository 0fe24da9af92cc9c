// All that is written, however much it is.
ghost use Rattle.std.specs.Prelude.{IfOk};
ghost use Rattle.std.specs.Borrow.{MutBor};
ghost use Rattle.output.specs.Writes.{Whole};
ghost use Rattle.output.specs.declared.Output.{Output};

use crate::Output;
use std::alloc::{AllocError, Global};

// All that is written into an output, and what the writer answers. Where the text reaches the end of the memory there may
// be more, so twice as much is lent, and it is written anew: the text is what the writer left that once in memory with room
// to spare. That the writer may be called is required, since no test can stand in for it.
pub fn whole<T: Drop, F: Fn(&mut Output) -> T + Drop>(
    heap: Global,
    size: usize,
    write: F,
) -> Result<(Vec<u8>, T), AllocError>
    requires { F.IsAlwaysCallable write }
    ensures { IfOk result (λ r.
        (begun ended : MutBor Output) × F.post write begun r.1 ended × Whole begun.now ended.now r.0.items) }
{
    let mut lent = size;
    loop {
        let mut memory = vec![in heap; 0; lent]?;
        let mut out = Output {
            memory: memory.as_mut_slice(),
            at: 0,
        };
        let answer = write(&mut out);
        if out.at < out.memory.len() {
            return Ok((Vec::from_slice(heap, out.written())?, answer));
        }
        lent = 2 * memory.len() + 1;
    }
}
