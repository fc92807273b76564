// Standard input, in bulk.
ghost use Rattle.std.specs.Prelude.{◌≤◌, IfOk, vec_len};

use std::io::Read;

// All of standard input, or its first `most` bytes where it has more.
pub fn read_up_to(rt: &HostRuntime, most: usize) -> anyhow::Result<Vec<u8>>
    ensures { IfOk result (λ v. vec_len v ≤ most) }
{
    // One byte more, so that the read that finds the end needs no more room.
    let mut text = Vec::with_capacity(rt.alloc(), most.saturating_add(1))?;
    rt.stdin().take(most as u64).read_to_end(&mut text)?;
    // Cuts nothing off: it is for the proof, since the contract of `read_to_end` does not speak of the limit.
    text.truncate(most);
    Ok(text)
}
