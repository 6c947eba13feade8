//! The numbers in the program's arguments. `tests/test_program.py` has the arguments that the
//! program refuses.

use nv_arguments::Arguments;
use nv_script::Geometry;

#[test]
fn reads_a_file_and_a_geometry(rt: HostRuntime) {
    let words = [
        "nvme-script",
        "--pace=0xf",
        "--depth",
        "010",
        "--page-size=8192",
        "--list-offset",
        "16",
        "--subsystem=two.toml",
        "--window=2",
        "--offset=4",
    ];
    let wanted = Arguments {
        subsystem: Some("two.toml"),
        geometry: Geometry {
            depth: 8,
            page_size: 8192,
            offset: 4,
            list_offset: 16,
            window: 2,
            pace: 15,
        },
    };
    assert!(rt; Arguments::read(rt.alloc(), &words) == Ok(wanted));
}

#[test]
fn has_a_file_and_a_geometry_without_any(rt: HostRuntime) {
    let wanted = Arguments {
        subsystem: None,
        geometry: Geometry {
            depth: 32,
            page_size: 4096,
            offset: 0,
            list_offset: 0,
            window: 1,
            pace: 1,
        },
    };
    assert!(rt; Arguments::read(rt.alloc(), &["nvme-script"]) == Ok(wanted));
}

#[test]
fn leaves_limits_to_the_driver(rt: HostRuntime) {
    match Arguments::read(rt.alloc(), &["nvme-script", "--depth", "4294967295"]) {
        Ok(said) => assert!(rt; said.geometry.depth == 4_294_967_295),
        Err(_) => assert!(rt; false),
    }
}
