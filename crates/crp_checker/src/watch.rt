//! The line of a file that a checker stands in: whether it is the last of a certificate.
ghost use Rattle.std.specs.Prelude.{◌≡◌, ◌≢◌, ◌≤◌, ◌<◌, ◌+◌, ◌++◌, ◌∷◌, [], false, ℕ, List, IfSome, IfNone, length, take};
ghost use Rattle.std.specs.List.{AllByRecursion};
ghost use Rattle.crp_checker.specs.Files.{IsEnded};
ghost use Rattle.crp_checker.specs.Watches.{IsUnended};

/// How the bytes of a line so far agree with `end `, with which the last line of a certificate begins.
#[derive(Clone, Copy)]
pub enum Watch {
    /// None came.
    Begun,
    /// `e` came.
    E,
    /// `en` came.
    En,
    /// `end` came.
    End,
    /// The line begins with `end `.
    Last,
    /// It begins otherwise.
    Other,
}

/// The watch after one byte more; `None` where the byte ends a certificate.
fn next(watch: Watch, byte: u8) -> Option<Watch>
    ensures on { IfSome result (λ next. (text : List ℕ) → IsUnended text watch → IsUnended (text ++ byte ∷ []) next) }
    ensures ended { IfNone result ((text : List ℕ) → IsUnended text watch → IsEnded (text ++ byte ∷ [])) }
{
    if byte == b'\n' {
        return match watch {
            Watch::Last => None,
            _ => Some(Watch::Begun),
        };
    }
    match (watch, byte) {
        (Watch::Begun, b'e') => Some(Watch::E),
        (Watch::E, b'n') => Some(Watch::En),
        (Watch::En, b'd') => Some(Watch::End),
        (Watch::End, b' ') | (Watch::Last, _) => Some(Watch::Last),
        _ => Some(Watch::Other),
    }
}

/// Whether a line ends in these bytes.
fn has_end(bytes: &[u8]) -> bool
    ensures { result ≡ false → AllByRecursion (λ b. b ≢ 10) bytes.now }
{
    bytes.contains(&b'\n')
}

/// How many bytes stand in blocks at the front in which no line ends. A block is looked at faster than its bytes one by one.
fn clear_len(bytes: &[u8]) -> usize
    ensures within { result ≤ length bytes.now }
    ensures clear { AllByRecursion (λ b. b ≢ 10) (take result bytes.now) }
{
    let mut clear = 0;
    while bytes.len() - clear >= 64 && !has_end(&bytes[clear..clear + 64]) {
        clear += 64;
    }
    clear
}

/// How many bytes stand before the first end of a line; all, if none ends.
fn end_of(bytes: &[u8]) -> usize
    ensures within { result ≤ length bytes.now }
    ensures line { AllByRecursion (λ b. b ≢ 10) (take result bytes.now) }
    ensures stop { result < length bytes.now → take (result + 1) bytes.now ≡ take result bytes.now ++ 10 ∷ [] }
{
    for (i, byte) in bytes.iter().enumerate() {
        if *byte == b'\n' {
            return i;
        }
    }
    bytes.len()
}

/// How many bytes stand before the end of the line; all, if it does not end.
pub fn line_len(bytes: &[u8]) -> usize
    ensures within { result ≤ length bytes.now }
    ensures line { AllByRecursion (λ b. b ≢ 10) (take result bytes.now) }
    ensures stop { result < length bytes.now → take (result + 1) bytes.now ≡ take result bytes.now ++ 10 ∷ [] }
{
    let clear = clear_len(bytes);
    clear + end_of(&bytes[clear..])
}

/// How many of the bytes do not matter to the watch: those of the line, once it is known how that begins.
fn passed_over(watch: Watch, bytes: &[u8]) -> usize
    ensures within { result ≤ length bytes.now }
    ensures on { (text : List ℕ) → IsUnended text watch → IsUnended (text ++ take result bytes.now) watch }
{
    match watch {
        Watch::Last => line_len(bytes),
        Watch::Other => line_len(bytes),
        _ => 0,
    }
}

/// How many of the bytes belong to the certificate, which has not ended before them: `None` if they
/// all do, and it has not ended yet.
pub fn cut(watch: &mut Watch, bytes: &[u8]) -> Option<usize>
    ensures some { IfSome result (λ n. 1 ≤ n) }
    ensures within { IfSome result (λ n. n ≤ length bytes.now) }
    ensures ended { IfSome result (λ n. (text : List ℕ) → IsUnended text watch.old → IsEnded (text ++ take n bytes.now)) }
    ensures begun { IfSome result (λ _. watch.new ≡ Watch.Begun) }
    ensures on { IfNone result ((text : List ℕ) → IsUnended text watch.old → IsUnended (text ++ bytes.now) watch.new) }
{
    let mut taken = 0;
    while taken < bytes.len() {
        let Some(next) = next(*watch, bytes[taken]) else {
            *watch = Watch::Begun;
            return Some(taken + 1);
        };
        *watch = next;
        taken += 1;
        taken += passed_over(next, &bytes[taken..]);
    }
    None
}
