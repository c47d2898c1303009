//! Laws of the definitions.
ghost use Rattle.std.specs.Prelude.{◌≡◌, ℕ, List, All};
ghost use Rattle.capture_records.specs.Capture.{CaptureRecord, IsRecord, NoRecord, capture_of};

/// A capture has one reading: where the same bytes are records and then a rest that begins with
/// none, the records and the rest are the same.
pub fn one_reading()
    ensures { (venues : ℕ) (xs ys : List CaptureRecord) (r s : List ℕ)
        → All (IsRecord venues) xs → All (IsRecord venues) ys
        → NoRecord venues r → NoRecord venues s
        → capture_of xs r ≡ capture_of ys s → (xs ≡ ys) × (r ≡ s) }
{}
