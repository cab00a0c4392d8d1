// Which version is linked.
ghost use Rattle.std.specs.Prelude.{◌≡◌};

// MITYVURNO_VERSION_NUMBER of the header that belongs to this library: 10,000 times the major number, 100 times the minor one, the patch.
#[unsafe(no_mangle)]
pub extern "C" fn mityvurno_version() -> u64
    ensures { result ≡ 601 }
{
    engine::version::mityvurno_version()
}
