// What a handle leaves for the others that share its file. There is no code here: the clause is the
// law.
ghost use Rattle.ndbm_c.specs.Chains.{PeriodsAreAChain};
ghost use Rattle.ndbm_c.specs.Sharing.{RestsOnDisk};

/// Between two calls of a database that was opened for writing, and that no fault has broken, nothing
/// is unsynced. So another handle may open the file, also for reading.
pub fn rests_on_disk()
    ensures rests { RestsOnDisk }
{}

/// The periods of handles that share a file are a chain of `dbm_sharing`: each call has the reply of
/// the model at the map that the periods before it left, and the file then stands for the map that it
/// leaves. So the laws of `dbm_sharing` hold of them.
pub fn periods_are_a_chain()
    ensures chain { PeriodsAreAChain }
{}
