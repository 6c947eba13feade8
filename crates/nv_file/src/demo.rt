//! The subsystem file that is used if none is given.

/// A subsystem file with two controllers and two namespaces in three formats.
pub const DEMO: &str = r#"version = 1
nn = 4
tnvmcap = 10485760
mc = 1
subnqn = "nqn.2014-08.org.example:demo"

[[format]]
lbads = 9

[[format]]
lbads = 12

[[format]]
lbads = 9
ms = 8
rp = 1

[[controller]]
cntlid = 0
sn = "S0"
mn = "Demo Controller"
fr = "1.0"
elpe = 3
vwc = 7

[[controller.feature]]
fid = 6
default = 1
saveable = true

[[controller]]
cntlid = 1
sn = "S1"
mn = "Demo Controller"
fr = "1.0"
elpe = 0

[[namespace]]
nsid = 1
bytes = 1048576
format = 0
shared = true
controllers = [0]

[[namespace]]
nsid = 3
bytes = 4608
format = 0
controllers = [0]
"#;
