/// How many charges a site may have, and the two levels, in 10^-12 V: a site may be negative
/// from `mu_minus` on, and positive up to `mu_plus`.
#[derive(Clone, Copy, PartialEq, Eq, Debug)]
pub struct Levels {
    pub base: u64,
    pub mu_minus: i64,
    pub mu_plus: i64,
}
