//! The token of a token file.

ghost use Rattle.std.specs.Prelude.{◌≡◌};
ghost use Rattle.std.specs.List.{list_all};
ghost use Rattle.std.specs.Option.{option_copied};
ghost use Rattle.ps_answers.specs.Tokens as spec;

// A file's content without one closing line feed.
fn without_feed(bytes: &[u8]) -> &[u8]
    ensures { result.now ≡ spec.without_feed bytes.now }
{
    match bytes {
        [token @ .., b'\n'] => token,
        _ => bytes,
    }
}

// Whether a byte may stand in a token.
fn is_visible(byte: u8) -> bool
    ensures { result ≡ spec.is_visible byte }
{
    b'!' <= byte && byte <= b'~'
}

// Whether all bytes may.
fn are_visible(bytes: &[u8]) -> bool
    ensures { result ≡ list_all spec.is_visible bytes.now }
{
    'bytes: for byte in bytes {
        if !is_visible(*byte) {
            return false;
        }
    }
    true
}

// Whether bytes are a token.
fn is_token(bytes: &[u8]) -> bool
    ensures { result ≡ spec.is_token bytes.now }
{
    !bytes.is_empty() && are_visible(bytes)
}

/// The token that a token file holds: its bytes without one closing line feed. None exactly where these are none, or one of them is not from `!` to `~`.
pub fn token_in(bytes: &[u8]) -> Option<&[u8]>
    ensures { option_copied result ≡ spec.token_in bytes.now }
{
    let token = without_feed(bytes);
    if is_token(token) { Some(token) } else { None }
}
