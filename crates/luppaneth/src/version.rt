// Which interface a host is linked with. Header, archive and the hosts' crates have to be of one version: the state goes by value, and another
// length of it is no error that a linker sees. The number is that of the file VERSION, major × 10,000 + minor × 100 + patch; tests/version
// holds all that say it against that file.
ghost use Rattle.std.specs.Prelude.{◌≡◌};
ghost use Rattle.luppaneth.specs.Version.{version, state_len};

pub const VERSION: u32 = 800;

pub const STATE_LEN: usize = 9552;

#[unsafe(no_mangle)]
pub extern "C" fn luppaneth_version() -> u32
    ensures { result ≡ version }
{
    VERSION
}

// The same under a name that has the number: what was built against another version does not link.
#[unsafe(no_mangle)]
pub extern "C" fn luppaneth_version_800() -> u32
    ensures { result ≡ version }
{
    luppaneth_version()
}

// How many bytes a host has to reserve for a state.
#[unsafe(no_mangle)]
pub extern "C" fn luppaneth_state_len() -> usize
    ensures { result ≡ state_len }
{
    STATE_LEN
}
