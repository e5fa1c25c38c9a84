// The calls for C and other languages: the number is returned, the four details are written to an area of 16 bytes. Assumes nothing.
#![tactic(auto)]

ghost use Rattle.std.specs.Prelude.{[]};
ghost use Rattle.model.specs.Jobs.{read, allot, check, make, verify};
ghost use Rattle.boot.specs.Face.{Face};

use call_tell::tell;

const DETAILS_SIZE: usize = 16;

const TOO_SHORT: u32 = 17;

// Reads a request.
#[unsafe(no_mangle)]
pub extern "C" fn vaskunoor_read(request: &[u8], details: &mut [u8]) -> u32
    ensures { Face (read request.now) [] details.old result [] details.new }
{
    if details.len() != DETAILS_SIZE {
        return TOO_SHORT;
    }
    tell(vaskunoor::read_request(request), details)
}

// Gives slots to the circuits of a request, and writes them as its assignment.
#[unsafe(no_mangle)]
pub extern "C" fn vaskunoor_allocate(
    request: &[u8],
    budget: u32,
    assignment: &mut [u8],
    details: &mut [u8],
) -> u32
    ensures { Face (allot request.now budget assignment.old) assignment.old details.old result assignment.new details.new }
{
    if details.len() != DETAILS_SIZE {
        return TOO_SHORT;
    }
    let answer = vaskunoor::allocate(request, budget, assignment);
    tell(answer, details)
}

// Checks an assignment of a request.
#[unsafe(no_mangle)]
pub extern "C" fn vaskunoor_check_assignment(
    request: &[u8],
    assignment: &[u8],
    details: &mut [u8],
) -> u32
    ensures { Face (check request.now assignment.now) [] details.old result [] details.new }
{
    if details.len() != DETAILS_SIZE {
        return TOO_SHORT;
    }
    tell(vaskunoor::check_assignment(request, assignment), details)
}

// Makes the table of an assignment.
#[unsafe(no_mangle)]
pub extern "C" fn vaskunoor_make_tables(
    request: &[u8],
    assignment: &[u8],
    table: &mut [u8],
    details: &mut [u8],
) -> u32
    ensures { Face (make request.now assignment.now table.old) table.old details.old result table.new details.new }
{
    if details.len() != DETAILS_SIZE {
        return TOO_SHORT;
    }
    let answer = vaskunoor::make_tables(request, assignment, table);
    tell(answer, details)
}

// Checks a table against the request and the assignment that it is for.
#[unsafe(no_mangle)]
pub extern "C" fn vaskunoor_check_tables(
    request: &[u8],
    assignment: &[u8],
    table: &[u8],
    details: &mut [u8],
) -> u32
    ensures { Face (verify request.now assignment.now table.now) [] details.old result [] details.new }
{
    if details.len() != DETAILS_SIZE {
        return TOO_SHORT;
    }
    tell(vaskunoor::check_tables(request, assignment, table), details)
}
