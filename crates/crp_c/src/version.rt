ghost use Rattle.std.specs.Prelude.{◌≡◌};

/// The version of the library and of `crp.h`: a million for each major number, a thousand for each minor one, and the patch.
pub const VERSION: u32 = 1_000;

/// The version of the library. A caller whose `crp.h` has another one calls nothing else.
#[unsafe(no_mangle)]
pub extern "C" fn crp_version() -> u32
    ensures { result ≡ VERSION }
{
    VERSION
}
