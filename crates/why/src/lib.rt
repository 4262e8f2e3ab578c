// What a call of reasons promises; the call itself is `wimplejade_why` of the crate `wimplejade`.
#![tactic(auto)]
