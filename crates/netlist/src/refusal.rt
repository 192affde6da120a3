// Why a call is turned back.
ghost use Rattle.std.specs.Prelude.{◌≡◌};
ghost use Rattle.netlist.specs.Refusal.{number_of_refusal};

// Document 01's refusals, each with its number there.
#[derive(Clone, Copy, Debug, PartialEq, Eq)]
pub enum Refusal {
    // The netlist: under 4 bytes; N is 0, or N or P above its limit; a length that is not 4 + 5 N + 2 P.
    NoHead = 1,
    SizesNotAllowed = 2,
    LengthWrong = 3,
    // A kind that there is not; pairs that do not join; a pin count unfit for the kind; a source not allowed.
    UnknownKind = 4,
    PairsApart = 5,
    PinCountUnfit = 6,
    SourceNotAllowed = 7,
    // The certificate has no head, or wrong pairs.
    LayoutWrong = 8,
    // The netlist has no such node or site, or u is above 1.
    NoSuchFault = 9,
    // A window of too many frames; slices too short for it.
    WindowTooLong = 10,
    WorkSliceShort = 11,
    CertificateSliceShort = 12,
    // The split lies outside the window; a step is not allowed; a branch does not close.
    SplitOutside = 13,
    StepNotAllowed = 14,
    BranchOpen = 15,
    // The simulator's slices do not have N bytes, or a byte that is read is above 1.
    SlicesUnfit = 16,
}

// The refusal's number.
impl From<Refusal> for u8 {
    ghost from_gives = { λ refusal number. number ≡ number_of_refusal refusal };

    fn from(refusal: Refusal) -> u8 {
        refusal as u8
    }
}
