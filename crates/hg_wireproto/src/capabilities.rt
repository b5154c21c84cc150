//! What this server can do, as a client hears it first of all.

ghost use Rattle.std.specs.Prelude.{◌≡◌};
ghost use Rattle.hg_wireproto.specs.Capabilities.{capabilities_told};

/// The capabilities of this server: words, one space between, and no line feed. The value of `bundle2` is
/// itself lines `name=value,value` with escapes: what a bundle may have.
pub fn capabilities_text() -> &'static [u8]
    ensures { result.now ≡ capabilities_told }
{
    b"batch branchmap bundle2=HG20%0Abookmarks%0Achangegroup%3D01%2C02%0Aerror%3Dabort%2C\
      unsupportedcontent%2Cpushraced%2Cpushkey%0Aobsmarkers%3DV0%0Aphases%3Dheads%0Apushkey \
      getbundle httpheader=1024 known lookup pushkey unbundle"
        .as_slice()
}
