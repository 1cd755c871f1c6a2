// What a program reads: a file, or the standard input.
#![tactic(auto)]

ghost use Rattle.std.specs.Prelude.{◌≡◌, IsNone, IfSome, IfOk};

use std::fs;
use std::io::{self, Read};
use std::rt::Files;

// All of the file that is named, or of `standard` where none is. That a file can't be read is said on the standard error, after `trouble`.
// No clause can say what a file gives.
pub fn read_all<R: Alloc + Eprint + Files, S: Read + Drop>(
    rt: &R,
    path: Option<String<R::A>>,
    mut standard: S,
    trouble: &str,
) -> io::Result<Vec<u8, R::A>>
    ensures { IsNone path → IfOk result (λ v. IfSome (S.Read.remaining standard) (λ xs. v.items ≡ xs)) }
{
    match path {
        Some(path) => match fs::read(rt, path.as_str()) {
            Ok(bytes) => Ok(bytes),
            Err(e) => {
                eprintln!(rt; "{trouble} {path}: {e}")?;
                Err(e)
            }
        },
        None => {
            let mut bytes = Vec::new(rt.alloc());
            standard.read_to_end(&mut bytes)?;
            Ok(bytes)
        }
    }
}

#[cfg(test)]
mod tests {
    use super::read_all;

    #[test]
    fn the_standard_input_is_read(rt: HostRuntime) {
        let standard: &[u8] = b"lamps 3\nlit\n";
        let bytes = read_all(&rt, None, standard, "test:").expect(&rt, "memory");
        assert_eq!(rt; bytes.as_slice(), standard);
    }
}
