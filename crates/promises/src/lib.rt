// No code: theorems about the public calls, in proofs/. The three demands, to be read first: Demands, proved in DemandsHold; what phases add to them:
// PhasedDemands. The calls as programs: Programs. Of each call alone: CallLaws, CallPromises, ReadExactly, FlipExactly, WriteExactly, PhasedWriteExactly,
// WorkLeft. Categories and phases as two readings with one rule: Readings. Which refusal comes first: Orders; where it
// stands: CallPlaces, WritePlaces. A record read and written again: WrittenAgain, by what SameBytes says of its bytes. Flips, one after another:
// FlipPromises, by what ContainerPromises says of any container, and FlipCalls; byte place by byte place: KeptPlaces. A file gone through row by row:
// RowsAreReads, by what StepIsRead says of one step; its phases too: PhasedRowsAreReads, by what PhasedSteps says of one step; one that the whole-file
// check has accepted: CheckedRows.
#![tactic(auto)]
