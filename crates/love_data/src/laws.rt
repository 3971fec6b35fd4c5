//! Laws of the definitions, each the contract of a function that does nothing.

ghost use Rattle.std.specs.Prelude.{◌≡◌, ℕ, List, Some};
ghost use Rattle.base64.specs.GeneralPurpose.{IsBytes};
ghost use Rattle.love_data.specs.Encoding.{encoded, decoded};
ghost use Rattle.love_data.specs.declared.encoding.Format.{Format};

/// What bytes are written as is read as these bytes.
pub fn encoded_reads_back()
    ensures { (format : Format) (bytes : List ℕ) → IsBytes bytes →
        decoded format (encoded format bytes) ≡ Some bytes }
{}

/// In base64 a text that is read is the one that the bytes are written as.
pub fn base64_is_one_text()
    ensures { (text bytes : List ℕ) → IsBytes text →
        decoded Format.Base64 text ≡ Some bytes → text ≡ encoded Format.Base64 bytes }
{}
