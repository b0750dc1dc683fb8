//! Bytes: what stands behind and before a place, and digits.
ghost use Rattle.std.specs.Prelude.{◌≡◌, ◌≤◌, drop, length, take};
ghost use Rattle.std.specs.Char.{is_ascii_digit};
ghost use Rattle.std.specs.List.{list_all};

/// What stands behind the first elements.
pub fn after<T>(items: &[T], count: usize) -> &[T]
    requires { count ≤ length items.now }
    ensures { result.now ≡ drop count items.now }
{
    &items[count..]
}

/// The first elements.
pub fn before<T>(items: &[T], count: usize) -> &[T]
    requires { count ≤ length items.now }
    ensures { result.now ≡ take count items.now }
{
    &items[..count]
}

/// Whether each byte is one of `0` to `9`.
pub fn are_digits(bytes: &[u8]) -> bool
    ensures { result ≡ list_all is_ascii_digit bytes.now }
{
    bytes.iter().all(|byte| byte.is_ascii_digit())
}
