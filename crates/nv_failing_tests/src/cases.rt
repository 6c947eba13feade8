//! The scripts of the cases.

use crate::case::Case;
use crate::kept::Kept;
use nv_subsystem::DEMO;
use std::alloc::{AllocError, Global};

/// The write cache's value when it is on, as in the demonstration subsystem.
const ON: Option<u32> = Some(1);

const OFF: Option<u32> = Some(0);

const NAMESPACE: &str = "Invalid Namespace or Format (0x600b)";

/// Returns a case of two lines that list namespaces, and one that is refused.
fn lists(alloc: Global) -> Result<Case, AllocError> {
    let mut case = Case::new(alloc, DEMO, ON)?;
    let list = "list-ns /dev/nvme0";
    case.prints(alloc, list, "[   0]:0x1\n[   1]:0x3", (0, 1))?;
    case.refused(alloc, "id-ns /dev/nvme0 -n 0", NAMESPACE, (1, 2))?;
    case.prints(alloc, "list-ns /dev/nvme0 -n 3", "[   0]:0x3", (1, 3))?;
    Ok(case)
}

/// Returns a case that creates a namespace with all the remaining capacity and then one more, and
/// prints the error that this causes.
fn capacity(alloc: Global) -> Result<Case, AllocError> {
    let mut case = Case::new(alloc, DEMO, ON)?;
    case.prints(
        alloc,
        "create-ns /dev/nvme0 -s 18423 -c 18423",
        "create-ns: Success, created nsid:2",
        (0, 1),
    )?;
    case.refused(
        alloc,
        "create-ns /dev/nvme0 -s 1 -c 1",
        "Namespace Insufficient Capacity (0x6115)",
        (1, 2),
    )?;
    case.prints(
        alloc,
        "error-log /dev/nvme0",
        "entry               : 0
error_count         : 1
sqid                : 0
cmdid               : 0x1
status_field        : 0x6115
parm_err_loc        : 0xffff
lba                 : 0x0
nsid                : 0x0
vs                  : 0x0
cs                  : 0x200",
        (1, 4),
    )?;
    Ok(case)
}

/// The JSON that the case `errors` prints.
const ERRORS: &str = "{\"errors\":[\
{\"cmdid\":2,\"cs\":0,\"error_count\":3,\"lba\":0,\"nsid\":2,\"parm_err_loc\":65535,\
\"sqid\":0,\"status_field\":24578,\"vs\":0},\
{\"cmdid\":1,\"cs\":0,\"error_count\":2,\"lba\":0,\"nsid\":9,\"parm_err_loc\":65535,\
\"sqid\":0,\"status_field\":24587,\"vs\":0},\
{\"cmdid\":0,\"cs\":0,\"error_count\":1,\"lba\":0,\"nsid\":0,\"parm_err_loc\":65535,\
\"sqid\":0,\"status_field\":24587,\"vs\":0}]}";

/// Returns a case of three refusals that prints the error log in JSON.
fn errors(alloc: Global) -> Result<Case, AllocError> {
    let mut case = Case::new(alloc, DEMO, ON)?;
    case.refused(alloc, "id-ns /dev/nvme0 -n 0", NAMESPACE, (1, 1))?;
    case.refused(alloc, "id-ns /dev/nvme0 -n 9", NAMESPACE, (2, 2))?;
    let field = "Invalid Field in Command (0x6002)";
    case.refused(alloc, "delete-ns /dev/nvme0 -n 2", field, (3, 3))?;
    case.prints(alloc, "error-log /dev/nvme0 -o json", ERRORS, (3, 5))?;
    Ok(case)
}

/// Returns a case that prints a log of 256 entries after 300 refusals.
fn longest_log(alloc: Global) -> Result<Case, AllocError> {
    let file = DEMO.replace(alloc, "elpe = 3", "elpe = 255")?;
    let mut case = Case::new(alloc, file.as_str(), ON)?;
    for count in 1..301u64 {
        case.refused(alloc, "id-ns /dev/nvme0 -n 0", NAMESPACE, (count, count))?;
    }
    let mut text = String::new(alloc);
    for entry in 0..256u64 {
        let count = 300 - entry;
        let cid = count - 1;
        let newline = if entry == 0 { "" } else { "\n" };
        write!(text, "{newline}entry               : {entry}\n")?;
        write!(text, "error_count         : {count}\n")?;
        write!(text, "sqid                : 0\n")?;
        write!(text, "cmdid               : 0x{cid:x}\n")?;
        write!(text, "status_field        : 0x600b\n")?;
        write!(text, "parm_err_loc        : 0xffff\n")?;
        write!(text, "lba                 : 0x0\n")?;
        write!(text, "nsid                : 0x0\n")?;
        write!(text, "vs                  : 0x0\n")?;
        write!(text, "cs                  : 0x0")?;
    }
    let line = "error-log /dev/nvme0 -e 256";
    case.prints(alloc, line, text.as_str(), (300, 302))?;
    Ok(case)
}

/// Returns a file with two controllers and forty namespaces that are attached to both.
fn shared_file(alloc: Global) -> Result<String, AllocError> {
    let mut file = String::new(alloc);
    write!(
        file,
        "version = 1\nnn = 40\ntnvmcap = 20480\nsubnqn = \"n\"\n"
    )?;
    write!(file, "\n[[format]]\nlbads = 9\n")?;
    for controller in 0..2u32 {
        write!(file, "\n[[controller]]\ncntlid = {controller}\n")?;
        write!(file, "sn = \"S{controller}\"\nmn = \"M\"\nfr = \"1\"\n")?;
    }
    for nsid in 1..41u32 {
        write!(file, "\n[[namespace]]\nnsid = {nsid}\nbytes = 512\n")?;
        write!(file, "format = 0\nshared = true\ncontrollers = [0, 1]\n")?;
    }
    Ok(file)
}

/// Adds a device of this file to a list in JSON.
fn add_device(text: &mut String, controller: u32, nsid: u32) -> Result<(), AllocError> {
    let comma = if controller == 0 && nsid == 1 {
        ""
    } else {
        ","
    };
    write!(
        text,
        "{comma}{{\"block_size\":512,\"bytes\":512,\"model\":\"M\","
    )?;
    write!(text, "\"namespace\":{nsid},")?;
    write!(text, "\"node\":\"/dev/nvme{controller}n{nsid}\",")?;
    write!(text, "\"serial\":\"S{controller}\"}}")?;
    Ok(())
}

/// Returns a case that prints the list of forty namespaces on two controllers, in JSON.
fn shared(alloc: Global) -> Result<Case, AllocError> {
    let file = shared_file(alloc)?;
    let mut case = Case::new(alloc, file.as_str(), None)?;
    let mut text = String::from_str(alloc, "{\"devices\":[")?;
    for controller in 0..2u32 {
        for nsid in 1..41u32 {
            add_device(&mut text, controller, nsid)?;
        }
    }
    text.push_str("]}")?;
    case.prints(alloc, "list -o json", text.as_str(), (0, 42))?;
    case.refused(alloc, "id-ns /dev/nvme0 -n 0", NAMESPACE, (1, 43))?;
    Ok(case)
}

/// A line that turns the write cache off, and one that resets the controller, with what they print.
const SET_OFF: (&str, &str) = (
    "set-feature /dev/nvme0 -f 6 -v 0",
    "set-feature:0x6 (Volatile Write Cache), value:0x0, save:0",
);

const RESET: (&str, &str) = ("reset /dev/nvme0", "reset: Success");

/// Returns a case in which a reset twice restores a value, and then keeps a saved one.
fn resets(alloc: Global) -> Result<Case, AllocError> {
    let mut case = Case::new(alloc, DEMO, ON)?;
    for (line, text, counts, cache) in [
        (SET_OFF.0, SET_OFF.1, (0, 1), OFF),
        (RESET.0, RESET.1, (0, 1), ON),
        (SET_OFF.0, SET_OFF.1, (0, 2), OFF),
        (RESET.0, RESET.1, (0, 2), ON),
        (
            "set-feature /dev/nvme0 -f 6 -v 0 -s",
            "set-feature:0x6 (Volatile Write Cache), value:0x0, save:1",
            (0, 3),
            OFF,
        ),
        (RESET.0, RESET.1, (0, 3), OFF),
    ] {
        case.sets(alloc, line, text, Kept { counts, cache })?;
    }
    case.refused(alloc, "id-ns /dev/nvme0 -n 0", NAMESPACE, (1, 4))?;
    case.prints(alloc, RESET.0, RESET.1, (1, 4))?;
    Ok(case)
}

/// Returns a case of a line that is read byte by byte. Without its last two characters it would
/// turn the write cache off. If it is cut short there, the cache must stay on.
fn bytes(alloc: Global) -> Result<Case, AllocError> {
    let mut case = Case::new(alloc, DEMO, ON)?;
    case.most = 1;
    case.prints(
        alloc,
        "set-feature /dev/nvme0 -f 6 -v 0x1",
        "set-feature:0x6 (Volatile Write Cache), value:0x1, save:0",
        (0, 1),
    )?;
    Ok(case)
}

/// Returns all cases.
pub(crate) fn cases(alloc: Global) -> Result<Vec<Case>, AllocError> {
    let mut cases = Vec::new(alloc);
    cases.push(lists(alloc)?)?;
    cases.push(capacity(alloc)?)?;
    cases.push(errors(alloc)?)?;
    cases.push(longest_log(alloc)?)?;
    cases.push(shared(alloc)?)?;
    cases.push(resets(alloc)?)?;
    cases.push(bytes(alloc)?)?;
    Ok(cases)
}
