// What a call of the order check promises; the call itself is `wimplejade_order` of the crate `wimplejade`.
#![tactic(auto)]
