// A flag crosses the boundary as a byte, 0 or 1.
ghost use Rattle.std.specs.Prelude.{◌≡◌};
ghost use Rattle.host_state.specs.Flags.{is_flag, flag_of};

const SET: u8 = 1;

// The byte is a flag.
pub fn is_flag(b: u8) -> bool
    ensures { result ≡ is_flag b }
{
    b <= SET
}

// The flag of a byte.
pub fn flag_of(b: u8) -> bool
    ensures { result ≡ flag_of b }
{
    b == SET
}
