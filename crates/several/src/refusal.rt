ghost use Rattle.std.specs.Prelude.{◌≡◌, ◌+◌, ◌*◌, ◌<◌};

// A refusal after `i` records: the high four bits of H tell how many.
pub fn after(code: u32, i: usize) -> u32
    requires { (code < 4096) × (i < 16) }
    ensures { result ≡ code + 4096 * i }
{
    code + 4096 * (i as u32)
}
