// Strings of bytes as words spell them: a byte by itself or by %XX, and runs. What is promised here keeps the indices in range; that the
// spelling is right is seen by comparing what is printed.
ghost use Rattle.std.specs.Prelude.{◌≤◌, ◌<◌, length, IfSome};

use asked::asked_number;
use words::seek;

// What stands next in a word: a byte, or so many more of the byte before.
enum Piece {
    Byte(u8),
    Run(usize),
}

// Whether a byte stands for itself.
pub fn is_plain(b: u8) -> bool {
    (0x21 <= b) & (b <= 0x7E) & (b != b'%') & (b != b'*')
}

// The value of a hexadecimal digit.
fn hex_value(b: u8) -> Option<u8>
    ensures { IfSome result (λ v. v < 16) }
{
    match b {
        b'0'..=b'9' => Some(b - b'0'),
        b'A'..=b'F' => Some(b - b'A' + 10),
        _ => None,
    }
}

// The piece that stands first in a word, and the word behind it.
fn first_piece(word: &[u8]) -> Option<(Piece, &[u8])>
    ensures { IfSome result (λ p. length p.1.now < length word.now) }
{
    match word {
        [b'%', high, low, behind @ ..] => {
            let b = hex_value(*high)? * 16 + hex_value(*low)?;
            Some((Piece::Byte(b), behind))
        }
        [b'*', run @ ..] => {
            let end = seek(run, 0, b';');
            let more = asked_number(&run[..end])?;
            let behind = run.get(end + 1..)?;
            Some((Piece::Run(more as usize), behind))
        }
        [b, behind @ ..] if is_plain(*b) => Some((Piece::Byte(*b), behind)),
        _ => None,
    }
}

// Puts the string that a word spells, without its =, to the front of `into`, and answers how many bytes it has.
pub fn read_string(word: &[u8], into: &mut [u8]) -> Option<usize>
    ensures { IfSome result (λ n. n ≤ length into.new) }
{
    // Kept: the memory is filled by bytes and by runs of any length, so an iterator over it would be no plainer.
    let mut count = 0;
    // the byte that a run may follow: a run follows no other
    let mut before = None;
    let mut rest = word;
    while !rest.is_empty() {
        let (piece, behind) = first_piece(rest)?;
        match piece {
            Piece::Byte(b) => {
                *into.get_mut(count)? = b;
                count += 1;
                before = Some(b);
            }
            Piece::Run(more) => {
                let end = count.checked_add(more)?;
                into.get_mut(count..end)?.fill(before?);
                count = end;
                before = None;
            }
        }
        rest = behind;
    }
    Some(count)
}
