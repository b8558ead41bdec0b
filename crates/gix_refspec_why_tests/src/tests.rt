//! What specs do with a ref of a remote, beside what git 2.39.5 fetches of it.

mod fates;
