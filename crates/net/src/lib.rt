// Prefixes, and addresses of any family.
#![tactic(auto)]

pub mod family;
pub mod ipv4;
pub mod ipv6;
pub mod prefix;

pub use family::Family;
pub use ipv4::Ipv4;
pub use ipv6::Ipv6;
pub use prefix::Prefix;
