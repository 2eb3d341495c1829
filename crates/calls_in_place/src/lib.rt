// Lists of calls made one by one where the facility is, with the account of matter kept along. The functions are those of `calls` and `matter`;
// what they promise of one call, specs/ says of a whole list.
#![tactic(auto)]
