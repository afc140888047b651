//! Bytes that are cut at the first byte of a kind.

ghost use Rattle.std.specs.Prelude.{◌≡◌, ◌<◌, length, IfSome, ◌==◌};
ghost use Rattle.std.specs.List.{position};
ghost use Rattle.std.specs.Option.{option_copied};
ghost use Rattle.ps_file_lines.specs.Cuts.{cut as cut_at};

// The place of the first such byte.
fn place_of(bytes: &[u8], at: u8) -> Option<usize>
    ensures value { result ≡ position (λ b. b == at) bytes.now }
    ensures within { IfSome result (λ place. place < length bytes.now) }
{
    bytes.iter().position(|byte| *byte == at)
}

/// What stands before the first such byte; what stands behind it, where there is one.
pub fn cut(bytes: &[u8], at: u8) -> (&[u8], Option<&[u8]>)
    ensures front { result.0.now ≡ (cut_at at bytes.now).0 }
    ensures rest { option_copied result.1 ≡ (cut_at at bytes.now).1 }
    ensures shorter { IfSome result.1 (λ rest. length rest.now < length bytes.now) }
{
    match place_of(bytes, at) {
        Some(place) => (&bytes[..place], Some(bytes.split_at(place + 1).1)),
        None => (bytes, None),
    }
}
