use appraise::Policy;
use c_ends::requester_size;
use script_text::Rule;

// What an attestor has beside its requester and its policy: two flags, in the space that they take.
const FLAGS: usize = 8;

// The rules for which a list that grows by doubling has room at first.
const FIRST_RULES: usize = 4;

// The size of the policy of so many rules, at most.
fn policy_size(rules: usize, values: usize) -> usize {
    let listed = rules.saturating_mul(2).saturating_add(FIRST_RULES);
    size_of::<Rule>()
        .saturating_mul(listed)
        .saturating_add(values)
}

/// The most memory that opening an attestor has taken at any time, in bytes: with a hint and opaque data that have so many
/// bytes together, and a policy of so many rules, whose values have so many bytes together. Tested, and not proved.
pub fn attestor_size(bytes: usize, rules: usize, values: usize) -> usize {
    let policy = policy_size(rules, values);
    // A policy is read before there is a requester: twice itself, while its lists grow and its values have room to spare.
    let read = policy.saturating_mul(4);
    let open = requester_size(bytes)
        .saturating_add(size_of::<Policy>())
        .saturating_add(FLAGS)
        .saturating_add(policy);
    if read > open { read } else { open }
}
