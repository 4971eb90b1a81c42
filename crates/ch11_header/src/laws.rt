//! Laws of the definitions of this crate, each the contract of a function that does nothing.
ghost use Rattle.ch11_header.specs.HeaderBytes.{Fits, header_bytes};
ghost use Rattle.ch11_header.specs.HeaderReading.{header_in, with_lawful_lengths};
ghost use Rattle.ch11_header.specs.declared.header.Header.{Header};
ghost use Rattle.std.specs.Prelude.{◌≡◌, ℕ, List, ◌++◌, Ok};

/// A header with lawful lengths that is written is read again, whatever follows it.
pub fn written_is_read()
    ensures { (h : Header) (rest : List ℕ) → Fits h → with_lawful_lengths h ≡ Ok h
        → header_in (header_bytes h ++ rest) ≡ Ok h }
{}
