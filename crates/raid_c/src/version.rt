// The version of the calls.
ghost use Rattle.std.specs.Prelude.{◌≡◌};
ghost use Rattle.raid_c.specs.declared.version.TheConstants.{API_VERSION};

/// Goes up by one whenever a declaration of `behkuna.h` is added or changes.
pub const API_VERSION: u32 = 1;

/// The version of the archive's calls. The header has its own as BEHKUNA_API_VERSION. A caller compares both, since a header
/// and an archive may be of different builds.
#[unsafe(no_mangle)]
pub extern "C" fn behkuna_api_version() -> u32
    ensures { result ≡ API_VERSION }
{
    API_VERSION
}
