// The release, for callers that must know which archive they have.
ghost use Rattle.std.specs.Prelude.{◌≡◌};
ghost use Rattle.capi.specs.Release.{release};

// 10,000 × 4 + 100 × 2 + 0: `SPAN_VERSION` of capi/span.h.
const RELEASE: u64 = 40200;

// The release that the archive was built as.
#[unsafe(no_mangle)]
pub extern "C" fn span_version() -> u64
    ensures { result ≡ release }
{
    RELEASE
}

// The same, by a name that only releases with these functions and records have: callers of another one do not link.
#[unsafe(no_mangle)]
pub extern "C" fn span_release_4_2() -> u64
    ensures { result ≡ release }
{
    RELEASE
}
