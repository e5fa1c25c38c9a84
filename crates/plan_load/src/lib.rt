// Files put into a plan and its masks, and how a file that has a fault is refused. Assumes nothing.
#![tactic(auto)]

ghost use Rattle.std.specs.Prelude.{◌≡◌, IfErr};
ghost use Rattle.plan_load.specs.Loaded.{ByteFits, damage_of, Opens, Loads, LoadsBoth};

use file_parts::Request;
use file_records::Places;
use model::{Answer, Damage, File};
use plan::{Masks, Plan};
use plan_refusal::Tested;

// How the file with this number is refused where its reading found damage.
pub fn damaged<T>(file: u32, read: Result<T, Damage>) -> Result<T, Answer>
    requires { IfErr read ByteFits }
    ensures { result ≡ damage_of file read }
{
    match read {
        Ok(found) => Ok(found),
        Err(damage) => Err(Answer::Damaged {
            file,
            fault: damage.fault,
            byte: damage.byte as u32,
        }),
    }
}

// Reads a request, and makes its plan where its file has no fault.
fn open(request: &[u8], plan: &mut Plan) -> Result<Places, Answer>
    ensures { Opens request.now plan.new result }
{
    let starts = damaged(File::Request.into(), file_request::read(request))?;
    let read = Request {
        file: request,
        starts: &starts,
    };
    plan_fill::fill(&read, plan);
    Ok(starts)
}

// Loads a request.
pub fn load(request: &[u8], plan: &mut Plan) -> Tested
    ensures { Loads request.now plan.new result }
{
    open(request, plan)?;
    Ok(())
}

// Loads a request and its assignment.
pub fn load_both(request: &[u8], assignment: &[u8], plan: &mut Plan, masks: &mut Masks) -> Tested
    ensures { LoadsBoth request.now assignment.now plan.new masks.new result }
{
    let starts = open(request, plan)?;
    let read = Request {
        file: request,
        starts: &starts,
    };
    let records = file_assignment::read(&read, assignment);
    let booked = damaged(File::Assignment.into(), records)?;
    plan_masks::fill(assignment, &booked, masks);
    Ok(())
}
