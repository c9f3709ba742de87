//! The laws by which a number bounds the task of a problem: each call does nothing, and its
//! contract is the law.
ghost use Rattle.tf_posed.specs.ProblemData.{ProblemData, IsProblemSound};
ghost use Rattle.tf_problem.specs.ProblemLaws.{CertificateLaw, BestLaw, RelaxationLaw, PushedLaw};
ghost use Rattle.tf_problem.specs.ProblemLaws.{WindowLaw, CrowdLaw, OneJobLaw, MachineLaw};
ghost use Rattle.tf_problem.specs.ProblemLaws.{MultiplierLaw, PricesLaw, CheapestLaw, AloneLaw};
ghost use Rattle.tf_problem.specs.ProblemLaws.{RowPricesLaw};
ghost use Rattle.tf_problem.specs.Kept.{KeptBestLaw, KeptLaw, KeptWeightBestLaw, KeptWeightLaw};
ghost use Rattle.tf_problem.specs.Shortest.{ShortestBestLaw, ShortestLaw};
ghost use Rattle.tf_problem.specs.Ranks.{RankBestLaw, RankLaw};
ghost use Rattle.tf_problem.specs.Parts.{PartsLaw};
ghost use Rattle.tf_problem.specs.MachinePrices.{MachinePricesLaw};
ghost use Rattle.tf_problem.specs.Potentials.{PotentialsLaw};
ghost use Rattle.tf_problem.specs.Split.{SplitLaw};
ghost use Rattle.tf_problem.specs.FlowAgreement.{FlowAgreementLaw};

/// A lower bound that a certificate gives of a relaxed task is one of the task.
pub fn certificate_law()
    ensures { CertificateLaw }
{}

/// The minimum cost of a relaxed task is a lower bound of the task.
pub fn best_law()
    ensures { BestLaw }
{}

/// The tasks of classes that relax the task of a problem.
pub fn relaxation_law()
    ensures { (k : ProblemData) → IsProblemSound k → RelaxationLaw k }
{}

/// Release dates and due dates that follow from precedence constraints.
pub fn pushed_law()
    ensures { PushedLaw }
{}

/// A lower bound by some jobs that have one processing time each.
pub fn window_law()
    ensures { WindowLaw }
{}

/// A lower bound by more than h jobs for each machine, where none is preempted.
pub fn crowd_law()
    ensures { CrowdLaw }
{}

/// A lower bound by one job.
pub fn one_job_law()
    ensures { OneJobLaw }
{}

/// A lower bound by some jobs on one machine.
pub fn machine_law()
    ensures { MachineLaw }
{}

/// A lower bound by multipliers of jobs and arcs (Potts and Van Wassenhove 1985), on identical
/// machines with one that is as fast as all of them (Eastman, Even and Isaacs 1964).
pub fn multiplier_law()
    ensures { MultiplierLaw }
{}

/// A lower bound by prices of the rows, for any sum over jobs that are not preempted.
pub fn prices_law()
    ensures { PricesLaw }
{}

/// A lower bound by prices of the rows of the sum of weighted completion times, where jobs may be
/// preempted, by mean busy times (Goemans, Queyranne, Schulz, Skutella and Wang 2002).
pub fn row_prices_law()
    ensures { RowPricesLaw }
{}

/// A lower bound by prices of the rows on one machine of a shop, for any sum over jobs that are not
/// preempted.
pub fn machine_prices_law()
    ensures { MachinePricesLaw }
{}

/// The starts among which a job's cheapest is found, for the prices.
pub fn cheapest_law()
    ensures { (k : ProblemData) → CheapestLaw k }
{}

/// A lower bound by each job by itself, for any sum.
pub fn alone_law()
    ensures { AloneLaw }
{}

/// A lower bound of the number of late jobs by the jobs that can be kept (Moore 1968).
pub fn kept_law()
    ensures { KeptLaw }
{}

/// The minimum number of late jobs on one machine by the jobs that can be kept (Moore 1968).
pub fn kept_best_law()
    ensures { KeptBestLaw }
{}

/// A lower bound of the weighted number of late jobs by the jobs that can be kept (Lawler and Moore
/// 1969).
pub fn kept_weight_law()
    ensures { KeptWeightLaw }
{}

/// The minimum weighted number of late jobs on one machine by the jobs that can be kept (Lawler and
/// Moore 1969).
pub fn kept_weight_best_law()
    ensures { KeptWeightBestLaw }
{}

/// A lower bound of the sum of completion times on one machine with release dates, by the shortest
/// remaining processing time (Schrage 1968).
pub fn shortest_law()
    ensures { ShortestLaw }
{}

/// The minimum sum of completion times on one machine with release dates and preemption, by the
/// shortest remaining processing time (Schrage 1968).
pub fn shortest_best_law()
    ensures { ShortestBestLaw }
{}

/// A lower bound of the sum of completion times on identical machines by ranks, with or without
/// preemption (McNaughton 1959).
pub fn rank_law()
    ensures { RankLaw }
{}

/// The minimum sum of completion times on identical machines with preemption, by ranks (McNaughton
/// 1959).
pub fn rank_best_law()
    ensures { RankBestLaw }
{}

/// A lower bound of the makespan or the maximum lateness by the work that some jobs have to do in
/// one interval (energetic reasoning: Erschler, Lopez and Thuriot 1991).
pub fn parts_law()
    ensures { PartsLaw }
{}

/// A lower bound of the makespan or the maximum lateness of a no-wait flow shop by potentials of an
/// assignment of jobs to jobs (Wismer 1972, Kuhn 1955).
pub fn potentials_law()
    ensures { PotentialsLaw }
{}

/// A lower bound of the makespan or the maximum lateness of a permutation flow shop by two of its
/// machines, with the lags between them (Mitten 1959; Lenstra, Rinnooy Kan and Lageweg 1977).
pub fn split_law()
    ensures { SplitLaw }
{}

/// A job shop where all jobs visit all machines in the order of their numbers is a flow shop.
pub fn flow_agreement_law()
    ensures { FlowAgreementLaw }
{}
