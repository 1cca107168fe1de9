// "For a vertex with deadline d, a path is complete when its span is below d and each edge out of its last vertex, if any, would make the span d or
// more." "Its load at t, for t at least 1, is the largest total e over its prefixes with span strictly below t."
//
// The complete paths over a task's columns, as ways along its edges, and their loads by runs: specs/ says them so, proofs/ shows that they are document
// 01's. There is no code here.
#![tactic(auto)]
