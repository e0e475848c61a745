//! Names that a refused line may have.
ghost use Rattle.std.specs.Prelude.{◌≡◌};
ghost use Rattle.std.specs.List.{list_any};
ghost use Rattle.std.specs.Str.{str_eq_ignore_ascii_case};
ghost use Rattle.explain_refused.specs.Names.{class_of};

/// Names of the control that move no axis: they wait for spindles and positioning axes, stop and start what is read ahead, set
/// an alarm of the user, or tune feeds and accelerations.
pub(crate) static QUIET_NAMES: [&str; 27] = [
    "WAITS",
    "WAITP",
    "SPCON",
    "SPCOF",
    "SETAL",
    "STOPFIFO",
    "STARTFIFO",
    "FIFOCTRL",
    "FGROUP",
    "FGREF",
    "FL",
    "FA",
    "FB",
    "FPR",
    "FPRAON",
    "FPRAOF",
    "ACC",
    "ACCLIMA",
    "VELOLIMA",
    "JERKLIMA",
    "OVR",
    "OVRA",
    "CFC",
    "CFTCP",
    "CFIN",
    "SOFTA",
    "BRISKA",
];

/// Names of couplings. They move no axis where they couple spindles alone.
pub(crate) static COUPLING_NAMES: [&str; 8] = [
    "COUPDEF", "COUPDEL", "COUPON", "COUPONC", "COUPOF", "COUPOFS", "COUPRES", "WAITC",
];

/// What a name is to a refused line.
#[derive(Clone, Copy, PartialEq, Eq)]
pub(crate) enum NameClass {
    /// It moves no axis.
    Quiet,
    /// It couples spindles or axes.
    Coupling,
    /// THEN.
    Then,
    /// AXIS, which begins a job line.
    Axis,
    /// GEO, which begins a job line.
    Geo,
    /// Another one.
    Other,
}

/// Whether a text is this word, in upper or lower case.
fn is_word(text: &[u8], word: &str) -> bool
    ensures { result ≡ str_eq_ignore_ascii_case text.now word.now }
{
    text.eq_ignore_ascii_case(word.as_bytes())
}

/// Whether a text is one of these names, in upper or lower case.
fn is_one_of(text: &[u8], names: &[&str]) -> bool
    ensures { result ≡ list_any (λ name. str_eq_ignore_ascii_case text.now name.now) names.now }
{
    names.iter().any(|name| is_word(text, name))
}

/// What a name is.
#[tactic(auto, unfolding(crate::specs::Names::class_of))]
pub(crate) fn class_of(text: &[u8]) -> NameClass
    ensures { result ≡ class_of text.now }
{
    if is_one_of(text, &QUIET_NAMES) {
        NameClass::Quiet
    } else if is_one_of(text, &COUPLING_NAMES) {
        NameClass::Coupling
    } else if is_word(text, "THEN") {
        NameClass::Then
    } else if is_word(text, "AXIS") {
        NameClass::Axis
    } else if is_word(text, "GEO") {
        NameClass::Geo
    } else {
        NameClass::Other
    }
}
