// The C interface: which version of the library it is.
#![tactic(auto)]

ghost use Rattle.std.specs.Prelude.{◌≡◌};
ghost use Rattle.capi_version.specs.Version.{library_version};

#[unsafe(no_mangle)]
pub extern "C" fn pairing_version() -> u32
    ensures { result ≡ library_version }
{
    900
}
