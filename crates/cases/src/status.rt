// How a run ends, as text.
use case_text::{Trouble, first_number, first_word};
use rm_cmd::Status;

/// The status that a text names, with its numbers behind it where it has some.
pub fn status(text: &str) -> Result<Status, Trouble> {
    let (word, rest) = first_word(text);
    match word {
        "bad-capture" => {
            let (interface, rest) = first_number(rest)?;
            let at = place(rest)?;
            return Ok(Status::BadCapture { interface, at });
        }
        "bad-requests" => return Ok(Status::BadRequests(place(rest)?)),
        _ => {}
    }
    match text {
        "done" => Ok(Status::Done),
        "usage" => Ok(Status::Usage),
        "read-fault" => Ok(Status::ReadFault),
        "write-fault" => Ok(Status::WriteFault),
        "no-memory" => Ok(Status::NoMemory),
        "link-fault" => Ok(Status::LinkFault),
        "too-long" => Ok(Status::TooLong),
        _ => Err(Trouble::Form("no status")),
    }
}

fn place(word: &str) -> Result<u64, Trouble> {
    word.parse::<u64>()
        .map_err(|_| Trouble::Form("no place behind the status"))
}
