// The answer to any text (document 01): the text is read into a request, and this is analysed.
#![tactic(auto)]

ghost use Rattle.std.specs.Prelude.{◌≡◌, length};
ghost use Rattle.scheme.specs.Text.{most_bytes, request_lines, in_form};
ghost use Rattle.scheme.specs.Promises.{Stands, Replies};

use request::Request;

// The refusals that a text has beside the table's: a line is not in form, the text is too long.
const NOT_IN_FORM: u32 = 9;

const TOO_LONG: u32 = 10;

// The answer to a text that is not too long. Here is room for the request.
fn reply_to_text(text: &[u8], out: &mut [u8]) -> usize
    requires { length out.old ≡ most_bytes }
    ensures { Stands (in_form (request_lines (1, text.now))) out.old result out.new }
{
    let mut guess = [0i32; 4096];
    let mut stations = [request::NO_STATION; 512];
    match text_request::read_request(text, &mut guess, &mut stations) {
        Ok((terms, count, _)) => {
            let request = Request {
                terms,
                guess: &guess[..terms.ny * terms.nx],
                stations: &stations[..count],
            };
            text_answer::reply_to(&request, out)
        }
        Err(fault) => text_print::first_two(out, 0, NOT_IN_FORM, fault.line),
    }
}

// The answer to any text, at the start of out; how many bytes it has. No heap: the room is the program's.
pub fn reply(text: &[u8], out: &mut [u8; 65536]) -> usize
    ensures { Replies text.now out.old result out.new }
{
    if 65536 < text.len() {
        return text_print::first_two(out, 0, TOO_LONG, 0);
    }
    reply_to_text(text, out)
}
